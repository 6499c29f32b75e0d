// Tests of whole runs, through the open calls alone.
#![tactic(auto)]

#[cfg(test)]
mod codes;
#[cfg(test)]
mod refused;
#[cfg(test)]
mod runs;
#[cfg(test)]
mod scans;
