// Examples of the ordered list, at kinds of entry that no other crate has.
#![tactic(auto)]

mod kinds;
#[cfg(test)]
mod tests;
