use std::alloc::AllocGlobal;
use std::rt::Files;
use std::sync::Wait;
use std::thread::Threads;
use std::time::Clock;

/// What the threads of a server need of the runtime, besides sockets.
pub trait Host: Threads + Wait + Files + Clock + AllocGlobal + Copy + Send + Sync + 'static {}

impl<R: Threads + Wait + Files + Clock + AllocGlobal + Copy + Send + Sync + 'static> Host for R {}
