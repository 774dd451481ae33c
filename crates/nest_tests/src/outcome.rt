// How an event ended.
mod rows;

pub use rows::OutcomeContainer;

#[derive(Drop)]
pub enum Outcome {
    Ok(u64),
    Failed(String),
    Timeout,
    Retried(u32, u64),
}
