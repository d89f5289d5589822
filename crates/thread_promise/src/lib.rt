//! What the module of a thread promises: it runs the code of the thread by its plan.
#![tactic(auto)]
