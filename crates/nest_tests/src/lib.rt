//! Tests of nests of types of one's own: each call on a column of them.
#![tactic(auto)]

#[cfg(test)]
mod board;
#[cfg(test)]
mod cell;
#[cfg(test)]
mod claims;
#[cfg(test)]
mod event;
#[cfg(test)]
mod kind;
#[cfg(test)]
mod nests;
#[cfg(test)]
mod outcome;
#[cfg(test)]
mod page;
#[cfg(test)]
mod point;
