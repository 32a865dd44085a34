//! Runs and the program, over readers and writers that fail, and workers with paces of their own.
mod running;
mod statuses;
mod threads;
