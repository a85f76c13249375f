// Examples of sale files: what their lines say, where they are refused, and what is printed of them; and a walk over a file from outside its crate.
#![tactic(auto)]

#[cfg(test)]
mod checking;
#[cfg(test)]
mod halting;
#[cfg(test)]
mod making;
#[cfg(test)]
mod tests;
mod walking;

pub use walking::read_through;
