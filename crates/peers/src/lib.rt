// What the benchmark compares entries of the product with: proved, and built by the same kit. No part of the product.
#![tactic(auto)]

pub mod decoders;
pub mod judging;
pub mod plain;
