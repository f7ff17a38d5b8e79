//! What is made from a number: a text and a script.

/// The text and the script made from a number.
#[derive(Debug, Drop)]
pub struct Made {
    pub text: Vec<u8>,
    pub script: Vec<u8>,
}
