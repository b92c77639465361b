#![tactic(auto)]

// What the reports and refusals of small files say.
#[cfg(test)]
mod tests;
