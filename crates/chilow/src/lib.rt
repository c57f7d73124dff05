// The two ChiLow ciphers.
#![tactic(auto)]

mod word;
pub mod word_cipher;
