//! Listeners, one a place.
ghost use Rattle.std.specs.Prelude.{◌<◌, length, IfOk};

use std::alloc::Global;
use std::io;
use std::net::{Net, OpenListener, TcpListener};

/// The listeners of the places at which a connection was asked for, each kept from its first call on: who calls between two of them waits
/// in its queue.
#[derive(Drop)]
pub struct Listeners<R: Net> {
    listeners: Vec<Listening<R::Listener>>,
    alloc: Global,
}

#[derive(Drop)]
struct Listening<L> {
    place: String,
    listener: L,
}

impl<R: Net> Listeners<R> {
    /// None yet.
    pub fn new(alloc: Global) -> Listeners<R> {
        Listeners {
            listeners: Vec::new(alloc),
            alloc,
        }
    }

    /// The next connection that comes to a place; it waits for one, without a limit. The place is listened at from its first call on.
    pub fn accept(&mut self, runtime: &R, place: &str) -> io::Result<R::Stream> {
        let index = self.listen(runtime, place)?;
        let (stream, _) = self.listeners[index].listener.accept()?;
        Ok(stream)
    }

    /// Which listener is that of a place. It is made where there is none yet.
    pub fn listen(&mut self, runtime: &R, place: &str) -> io::Result<usize>
        ensures { IfOk result (λ i. i < length self.new.listeners.items) }
    {
        for (i, kept) in self.listeners.iter().enumerate() {
            if kept.place.as_str() == place {
                return Ok(i);
            }
        }
        let listener = TcpListener::bind(runtime, place)?;
        let place = String::from_str(self.alloc, place)?;
        self.listeners.push(Listening { place, listener })?;
        Ok(self.listeners.len() - 1)
    }
}
