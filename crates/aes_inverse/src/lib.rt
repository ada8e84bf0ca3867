// AES-256 decryption (FIPS 197, 5.3): a block of four words, under a key schedule that is lent with its unmixed round keys and the table of the rounds.
#![tactic(auto)]

pub mod block;
pub mod round_table;
pub mod unmix;
