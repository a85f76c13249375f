//! The bits of numbers and of bytes, as definitions and laws that the engines share. It has no code.
#![tactic(auto)]
