//! One option as it is set somewhere.

use crate::scope::Scope;
use crate::value::OptionValue;
use byte_texts::Utf8Text;

/// An option as it is set at a scope. That of the global scope declares the option and its type.
#[derive(Drop, Debug)]
pub struct Setting {
    pub scope: Scope,
    pub name: Utf8Text,
    pub value: OptionValue,
}
