//! Tests of what no file of cases says: a lock by a table of calls, each of which asks for what was proved of those before it, and
//! every shelf and sink.
#![tactic(auto)]

#[cfg(test)]
mod handovers;
#[cfg(test)]
mod outside;
