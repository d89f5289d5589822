//! Laws of lists that std lacks and several crates cite: elements by their places. It has no code.
#![tactic(auto)]
