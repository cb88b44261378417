// Where quotes come from: tables and tariffs that are lent, and layers over any source.
#![tactic(auto)]

mod extent;
mod meaning;
mod quote_table;
mod span_tariff;
mod strike_layer;
mod struck_pairs;
mod words;

pub use meaning::Source;
pub use quote_table::QuoteTable;
pub use span_tariff::{Span, SpanTariff};
pub use strike_layer::StrikeLayer;
pub use struck_pairs::StruckPairs;
pub use words::has_weekend;
