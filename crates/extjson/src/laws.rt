//! The laws of trees and values. Each function does nothing, and its caller learns the law.
ghost use Rattle.extjson.specs.Levels.{TreesAreShallow, WrappedAreShallow};
ghost use Rattle.extjson.specs.Plain.{TreesAreWrapped, WrappedAreWellFormed, WrappedOnce};
ghost use Rattle.extjson.specs.RoundTrip.{TreesReadBack};

/// The tree of a value reads as the value, where no document in it has an outermost name of a wrapper.
pub fn trees_read_back()
    ensures { TreesReadBack }
{}

/// A tree whose plain numbers became wrappers stays as it is.
pub fn wrapped_once()
    ensures { WrappedOnce }
{}

/// The tree of a value has no plain number that would become a wrapper.
pub fn trees_are_wrapped()
    ensures { TreesAreWrapped }
{}

/// The tree of a value has at most two levels for each level of the value, and three more.
pub fn trees_are_shallow()
    ensures { TreesAreShallow }
{}

/// Plain numbers that become wrappers add one level at most, and take none away.
pub fn wrapped_are_shallow()
    ensures { WrappedAreShallow }
{}

/// A well-formed tree stays so when its plain numbers become wrappers.
pub fn wrapped_are_well_formed()
    ensures { WrappedAreWellFormed }
{}
