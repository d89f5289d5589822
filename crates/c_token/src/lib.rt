//! The tokens of a C text: keywords, punctuators, names, constants and string literals, each with the place of its first byte.
//! `rt plant`: of 29 wrong bodies in 7 functions 25 are refused and 4 answer the same.
#![tactic(auto)]

pub mod constant;
pub mod keyword;
pub mod punctuator;
pub mod token;

pub use constant::{Constant, ConstantType};
pub use keyword::Keyword;
pub use punctuator::Punctuator;
pub use token::{Kind, Token};
