// Sites and their reports against figures that were worked out by hand.
#![tactic(auto)]

#[cfg(test)]
mod sites;
