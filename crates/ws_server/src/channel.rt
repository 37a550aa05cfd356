//! Connections of which generic code knows only what their reads and sends gave.
ghost use Rattle.tungstenite.specs.Socket.{Reads};
ghost use Rattle.ws_server.specs.Sockets.{Sends};

use std::io::{Read, Write};
use tungstenite::{Error, Message, NoMask, WebSocket};

/// A connection that gives messages and takes them, of which generic code knows only what these calls gave. A server's
/// socket is one.
pub trait Channel {
    ghost use Rattle.std.specs.Prelude.{Result};
    ghost use Rattle.tungstenite.specs.Content.{Content};
    ghost use Rattle.tungstenite.specs.Socket.{content_of};
    ghost use Rattle.tungstenite.specs.declared.error.Error.{Error};
    ghost use Rattle.tungstenite.specs.declared.message.Message.{Message};

    // From the first state a read may give this result, and leave the second.
    ghost reads: { Self → Result Message Error → Self → Type 0 };

    // From the first state a send of this message may give this result, and leave the second.
    ghost sends: { Self → Content → Result (Unit {0}) Error → Self → Type 0 };

    /// One read: the next message. Takes what the connection's read takes.
    fn read_once(&mut self) -> Result<Message, Error>
        ensures { reads self.old result self.new };

    /// One send of the message. A close is taken once, also where a read has failed. Takes what the connection's send takes.
    fn send_once(&mut self, message: Message) -> Result<(), Error>
        ensures { sends self.old (content_of message) result self.new };
}

impl<S: Read + Write + Drop> Channel for WebSocket<S, NoMask> {
    ghost reads = { λ old result new. Reads S.remaining old new result };

    ghost sends = { Sends S.contents };

    fn read_once(&mut self) -> Result<Message, Error> {
        self.read()
    }

    fn send_once(&mut self, message: Message) -> Result<(), Error> {
        match message {
            Message::Close(frame) => self.close(frame),
            message => self.send(message),
        }
    }
}
