// Tests over several crates: the reader, the rules, what `grow` prints, and stacks of lattices.
#![tactic(auto)]

#[cfg(test)]
mod accepted;
#[cfg(test)]
mod checked;
#[cfg(test)]
mod expect;
#[cfg(test)]
mod refused;
#[cfg(test)]
mod sessions;
#[cfg(test)]
mod stacks;
