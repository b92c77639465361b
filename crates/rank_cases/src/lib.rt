#![tactic(auto)]

#[cfg(test)]
mod groups;
#[cfg(test)]
mod ranks;
#[cfg(test)]
mod runs;
