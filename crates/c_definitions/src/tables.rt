// The declarations of a program, so far.

use c_program::tree as resolved;

/// What a text has declared so far at file scope, by kind, each in the order of the declarations.
#[derive(Drop)]
pub struct Tables {
    pub functions: Vec<resolved::Function>,
    pub globals: Vec<resolved::GlobalVariable>,
    pub threads: Vec<resolved::ThreadObject>,
    pub mutexes: Vec<resolved::MutexObject>,
    pub barriers: Vec<resolved::BarrierObject>,
}
