//! Which commands the store refuses, as tests of its collections.
#![tactic(auto)]

mod after;
mod clashes;
mod collection_rows;
mod conditions;
mod document_rows;
mod index_tests;
mod updates;

pub use after::all_documents;
pub use clashes::{IndexTest, test};
pub use collection_rows::{
    create_refusal, drop_index_refusal, has_database, index_refusal, rename_refusal,
};
pub use document_rows::{
    delete_refusal, document_refusal, insert_refusal, replace_refusal, update_refusal,
    updated_refusal,
};
pub use index_tests::{put_refusal, refusal_by};
pub use updates::{updated, updated_own};
