//! Tests of boards, and of what of sessions no recorded session shows.
#![tactic(auto)]

#[cfg(test)]
mod boards;
#[cfg(test)]
mod checkpoints;
#[cfg(test)]
mod ends;
#[cfg(test)]
mod failing;
#[cfg(test)]
mod fresh;
#[cfg(test)]
mod full;
#[cfg(test)]
mod machine;
#[cfg(test)]
mod programs;
#[cfg(test)]
mod sharing;
#[cfg(test)]
mod tries;
#[cfg(test)]
mod waiting;
