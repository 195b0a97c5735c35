//! The library for C: the nine calls that C makes of `hosted`, over a device and a console that it gives under numbers.
#![tactic(auto)]

mod exports;
