//! Tests of what no clause says of names, journals, grants, channels, feeds, scripts, gates and the outside.
#![tactic(auto)]

#[cfg(test)]
mod feeds;
#[cfg(test)]
mod fronts;
#[cfg(test)]
mod grants;
#[cfg(test)]
mod journals;
#[cfg(test)]
mod listed;
#[cfg(test)]
mod long;
#[cfg(test)]
mod looks;
#[cfg(test)]
mod names;
#[cfg(test)]
mod outside;
#[cfg(test)]
mod plain;
#[cfg(test)]
mod scripts;
#[cfg(test)]
mod sorted;
#[cfg(test)]
mod texts;
#[cfg(test)]
mod threads;
#[cfg(test)]
mod turns;
#[cfg(test)]
mod worked;
