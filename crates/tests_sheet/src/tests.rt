// The tests, a file for each concept.
mod asserts;
mod cells;
mod csvin;
mod forecasts;
mod foretold;
mod framing;
mod large_forecasts;
mod refusals;
mod replicas;
mod requests;
mod telling;
mod undo;
mod views;
