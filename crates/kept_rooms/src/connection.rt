//! A connection whose output waits: it goes out once what the connection was answered is kept.
ghost use Rattle.std.specs.Prelude.{◌≡◌, ◌<◌, ◌≤◌, [], length, IfOk, OnOk};
ghost use Rattle.tungstenite.specs.Socket.{Reads};
ghost use Rattle.ws_server.specs.Halls.{rooms_of, IsHallPassOf, IsConnOf};
ghost use Rattle.ws_server.specs.Serving.{IsNew, ServesTurn};
ghost use Rattle.ws_server.specs.Sockets.{IsOfHandshake, Sends};
ghost use Rattle.kept_rooms.specs.Covered.{AreCovered};
ghost use Rattle.kept_rooms.specs.Outputs.{output_of};

use crate::held::HeldStream;
use crate::room_turns::{RoomTurns, wait_until_kept};
use keeper::{Disk, Kept};
use line_engine::ServeFault;
use std::alloc::Global;
use std::io::{Read, Write};
use std::sync::Wait;
use std::time::Clock;
use tungstenite::{NoMask, WebSocket};
use ws_server::{Conn, Hall, HallPass, HandshakeFault, Origins, Witness, serve_one, shake_hands};

/// A connection to the rooms of a hall, with its stream and its pass, which nothing else has. Its output waits until it is released.
#[derive(Drop)]
pub struct KeptConnection<'a, S: Read + Write + Drop> {
    hall: &'a Hall,
    pass: HallPass,
    conn: Conn,
    socket: WebSocket<HeldStream<S>, NoMask>,
}

impl<'a, S: Read + Write + Drop> KeptConnection<'a, S> {
    /// Takes the handshake of a stream, and has opened no room. Its faults are those of `shake_hands`.
    pub fn open(
        alloc: Global,
        hall: &'a Hall,
        pass: HallPass,
        stream: S,
        origins: Origins<'_>,
    ) -> Result<KeptConnection<'a, S>, HandshakeFault>
        requires { IsHallPassOf hall.now pass }
        ensures hall { IfOk result (λ it. it.hall ≡ hall.entry) }
        ensures pass { IfOk result (λ it. IsHallPassOf it.hall.now it.pass) }
        ensures conn { IfOk result (λ it. IsConnOf it.hall.now it.conn) }
        ensures given { IfOk result (λ it. it.pass ≡ pass) }
        ensures taken { IfOk result (λ it. IsOfHandshake it.socket × IsNew it.conn) }
    {
        match shake_hands(alloc, HeldStream::new(alloc, stream), origins) {
            Ok(socket) => Ok(KeptConnection {
                hall,
                pass,
                conn: Conn::new(alloc),
                socket,
            }),
            Err(why) => Err(why),
        }
    }

    /// The place in the hall of the room that it opened, if it opened one. Constant time.
    pub fn opened(&self) -> Option<usize>
        ensures { result ≡ self.now.conn.opened }
    {
        self.conn.opened()
    }

    /// How many bytes of output wait. Constant time.
    pub fn waiting(&self) -> usize
        ensures { result ≡ length self.now.socket.stream.held.items }
    {
        self.socket.get_ref().waiting()
    }

    /// Whether a read was put off since output waits. Constant time.
    pub fn is_put_off(&self) -> bool
        ensures { result ≡ self.now.socket.stream.is_put_off }
    {
        self.socket.get_ref().is_put_off()
    }

    /// Serves one message, as `serve_one` does: its answer waits with the other output. `Read` also where the read was put off.
    pub fn serve<R: Wait, G: Witness>(
        &mut self,
        rt: &R,
        alloc: Global,
        gate: &mut G,
    ) -> Result<bool, ServeFault>
        requires pass { IsHallPassOf self.old.hall.now self.old.pass }
        requires conn { IsConnOf self.old.hall.now self.old.conn }
        ensures hall { self.new.hall ≡ self.old.hall }
        ensures pass { IsHallPassOf self.new.hall.now self.new.pass }
        ensures conn { IsConnOf self.new.hall.now self.new.conn }
        ensures served { ServesTurn (λ old result new. Reads (λ it. S.remaining it.stream) old new result) (Sends (output_of S.contents))
            G.told_before G.told_after self.old.hall.now
            self.old.socket (record { conn = self.old.conn; passes = self.old.pass.passes.items; gate = gate.old })
            self.new.socket (record { conn = self.new.conn; passes = self.new.pass.passes.items; gate = gate.new }) result }
    {
        serve_one(
            rt,
            alloc,
            self.hall,
            &mut self.pass,
            &mut self.conn,
            &mut self.socket,
            gate,
        )
    }

    /// Waits until what the connection was answered is kept: the log of the room that it has opened, as far as its pass has seen it.
    ///
    /// Its faults are those of `wait_until_kept`.
    pub fn wait<R: Wait + Clock, D: Disk>(
        &mut self,
        rt: &R,
        alloc: Global,
        turns: &[RoomTurns<D>],
    ) -> Result<Option<Kept>, ServeFault>
        requires pass { IsHallPassOf self.old.hall.now self.old.pass }
        requires conn { IsConnOf self.old.hall.now self.old.conn }
        requires counted { length turns.now ≡ length (rooms_of self.old.hall.now) }
        ensures hall { self.new.hall ≡ self.old.hall }
        ensures pass { IsHallPassOf self.new.hall.now self.new.pass }
        ensures conn { self.new.conn ≡ self.old.conn }
        ensures socket { self.new.socket ≡ self.old.socket }
        ensures covered { IfOk result (λ kept. AreCovered self.new.hall.now self.new.conn.opened self.new.pass kept) }
    {
        let kept = match self.conn.opened() {
            Some(at) => Some(wait_until_kept(
                rt,
                alloc,
                self.hall,
                &mut self.pass,
                at,
                &turns[at],
            )?),
            None => None,
        };
        Ok(kept)
    }

    /// Sends all output that waits, in its order. What the connection was answered has to be kept, as the receipt tells.
    ///
    /// `Write` where the stream failed; then some of it may be sent. Takes the stream's time.
    pub fn release(&mut self, kept: Option<Kept>) -> Result<(), ServeFault>
        requires covered { AreCovered self.old.hall.now self.old.conn.opened self.old.pass kept }
        ensures hall { self.new.hall ≡ self.old.hall }
        ensures pass { self.new.pass ≡ self.old.pass }
        ensures conn { self.new.conn ≡ self.old.conn }
        ensures nothing { OnOk result (self.new.socket.stream.held.items ≡ []) }
    {
        match self.socket.get_mut().write_out() {
            Ok(()) if self.waiting() == 0 => Ok(()),
            _ => Err(ServeFault::Write),
        }
    }
}
