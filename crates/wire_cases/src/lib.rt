#![tactic(auto)]

#[cfg(test)]
mod parts;
#[cfg(test)]
mod runs;
#[cfg(test)]
mod whole;
