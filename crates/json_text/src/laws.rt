//! The laws of the grammar and of printing. Each function does nothing, and its caller learns the law.
ghost use Rattle.json_text.specs.Grammar.{JsonIsRead, ReadIsJson};
ghost use Rattle.json_text.specs.Printing.{PrintIsJson, PrintIsRead};

/// What the grammar has is read: `parse` gives each text of the grammar its value.
pub fn json_is_read()
    ensures { JsonIsRead }
{}

/// What is read is in the grammar: each text to which `parse` gives a value spells that value.
pub fn read_is_json()
    ensures { ReadIsJson }
{}

/// The print of a value of at most 256 levels is in the grammar, and spells the value.
pub fn print_is_json()
    ensures { PrintIsJson }
{}

/// The print of a value of at most 256 levels is read as the value.
pub fn print_is_read()
    ensures { PrintIsRead }
{}
