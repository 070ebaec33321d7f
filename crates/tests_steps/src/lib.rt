//! Tests of the steps of calls: the rows of the step table, and the steps at objects and at worn
//! gates, alone and in pending calls. With them tests of all objects together.
#![tactic(auto)]

#[cfg(test)]
mod objects;
#[cfg(test)]
mod parts;
#[cfg(test)]
mod pending;
#[cfg(test)]
mod rows;
#[cfg(test)]
mod shown;
#[cfg(test)]
mod steps;
#[cfg(test)]
mod worn_gates;
