mod examples;
pub mod making;
pub mod tested;
mod values;
