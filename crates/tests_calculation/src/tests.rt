// The tests, a file for each concept.
mod anew;
mod calculations;
mod edits;
mod explanations;
mod held;
mod histories;
mod hundred;
mod kept;
mod large;
mod sheets;
mod siblings;
