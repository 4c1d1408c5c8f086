// The radio frame: its header as a value, planes written and read with shifts and masks, whole frames written and thinned. That
// a header is sound stays a clause of public functions, which are handed any: a type would ask more of who calls them.
#![tactic(auto)]

pub mod header;
pub mod planes;
pub mod whole;
