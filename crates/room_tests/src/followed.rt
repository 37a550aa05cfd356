//! Many editors of one room, which are given their replies early, late and again.
use crate::fixtures::{empty_room, insertion, shows};
use editors::Editor;
use opid::Refusal;
use room::{Call, Desk, Reply, RoomDesk};
use std::alloc::Global;
use std::test::Fail;

const SESSIONS: u32 = 20;

// A fixed generator of numbers.
#[derive(Drop)]
struct Numbers {
    last: u32,
}

impl Numbers {
    // A number below the limit, or 0 for the limit 0.
    fn below(&mut self, limit: usize) -> usize {
        self.last = self
            .last
            .wrapping_mul(1_664_525)
            .wrapping_add(1_013_904_223);
        let high = (self.last / 65_536) as usize;
        if limit == 0 { 0 } else { high % limit }
    }

    // A number below the limit that fits a call.
    fn place_below(&mut self, limit: usize) -> u32 {
        u32::try_from(self.below(limit)).unwrap_or(0)
    }
}

// A client of a room: its session, the number of its next submission, its editor, and the replies to its calls.
#[derive(Drop)]
struct Client {
    session: u32,
    next: u32,
    editor: Editor,
    replies: Vec<Reply>,
}

impl Client {
    // The client of the session, before its first call.
    fn new(alloc: Global, session: u32) -> Client {
        Client {
            session,
            next: 1,
            editor: Editor::new(alloc),
            replies: Vec::new(alloc),
        }
    }

    // The version that its editor has.
    fn version(&self) -> u32 {
        u32::try_from(self.editor.version()).unwrap_or(u32::MAX)
    }

    // Makes a call, and keeps the reply.
    fn ask(&mut self, desk: &mut RoomDesk, call: Call) -> Result<(), Fail> {
        let reply = desk.call(call)?;
        self.replies.push(reply)?;
        Ok(())
    }

    // Its editor is given the reply at the place, whether it was given that one before or not.
    fn receive(&mut self, at: usize) -> Result<(), Fail> {
        if let Some(reply) = self.replies.get(at) {
            self.editor.follow(reply)?;
        }
        Ok(())
    }

    // Its editor is given the last reply.
    fn receive_last(&mut self) -> Result<(), Fail> {
        let last = self.replies.len().saturating_sub(1);
        self.receive(last)
    }

    // Its editor is given one of the last replies, so many.
    fn receive_one_of(&mut self, last: usize, numbers: &mut Numbers) -> Result<(), Fail> {
        let back = numbers.below(last).saturating_add(1);
        let at = self.replies.len().saturating_sub(back);
        self.receive(at)
    }

    // Whether the last reply accepts a submission.
    fn is_accepted(&self) -> bool {
        matches!(self.replies.last(), Some(Reply::Ok { from: _, to: _ }))
    }

    // Puts a text in at some place of its editor's version. Whether that was accepted.
    fn insert(
        &mut self,
        alloc: Global,
        desk: &mut RoomDesk,
        numbers: &mut Numbers,
    ) -> Result<bool, Fail> {
        let text = if numbers.below(2) == 0 {
            "a\u{1F600}"
        } else {
            "xyz"
        };
        let k = numbers.place_below(self.editor.text().len().saturating_add(1));
        let call = insertion(alloc, self.session, self.next, self.version(), k, text)?;
        self.ask(desk, call)?;
        self.next = self.next.saturating_add(1);
        Ok(self.is_accepted())
    }

    // Its next submission, by which so many characters are deleted from a place of its editor's version on.
    fn deletion(&self, k: u32, c: u32) -> Call {
        let (s, n, v) = (self.session, self.next, self.version());
        Call::Del { s, n, v, k, c }
    }

    // Deletes some character of its editor's version. Whether that was accepted.
    fn delete(&mut self, desk: &mut RoomDesk, numbers: &mut Numbers) -> Result<bool, Fail> {
        let k = numbers.place_below(self.editor.text().len());
        let call = self.deletion(k, 1);
        self.ask(desk, call)?;
        self.next = self.next.saturating_add(1);
        Ok(self.is_accepted())
    }

    // Asks for the deletion of no character. Whether that was refused.
    fn delete_none(&mut self, desk: &mut RoomDesk) -> Result<bool, Fail> {
        let call = self.deletion(0, 0);
        self.ask(desk, call)?;
        Ok(matches!(self.replies.last(), Some(Reply::No(Refusal::BadCount))))
    }

    // Asks for at most so many edits behind its editor's version. Whether edits are told.
    fn pull(&mut self, desk: &mut RoomDesk, max: u32) -> Result<bool, Fail> {
        let (s, have) = (self.session, self.version());
        self.ask(desk, Call::Pull { s, have, max })?;
        Ok(matches!(self.replies.last(), Some(Reply::Edits { from: _, es: _ })))
    }

    // Asks for edits behind any version, whether its editor came so far or not, and whether it may or not.
    fn pull_anywhere(&mut self, desk: &mut RoomDesk, numbers: &mut Numbers) -> Result<(), Fail> {
        let s = self.session;
        let have = numbers.place_below(desk.room().replica().version() as usize);
        self.ask(desk, Call::Pull { s, have, max: 64 })
    }

    // One step, whichever. Whether the room answered as it has to.
    fn act(
        &mut self,
        alloc: Global,
        desk: &mut RoomDesk,
        numbers: &mut Numbers,
    ) -> Result<bool, Fail> {
        match numbers.below(12) {
            0 | 1 => self.insert(alloc, desk, numbers),
            2 if !self.editor.text().is_empty() => self.delete(desk, numbers),
            3 => self.delete_none(desk),
            4 => {
                self.pull_anywhere(desk, numbers)?;
                Ok(true)
            }
            5 | 6 => self.pull(desk, numbers.place_below(64).saturating_add(1)),
            7 => {
                let all = self.replies.len();
                self.receive_one_of(all, numbers)?;
                Ok(true)
            }
            _ => {
                self.receive_one_of(3, numbers)?;
                Ok(true)
            }
        }
    }

    // Whether its editor has what the room reads at the editor's version.
    fn is_in_step(&self, desk: &RoomDesk) -> Result<bool, Fail> {
        let text = desk.room().replica().doc().reading(self.version())?;
        Ok(shows(&self.editor, text.as_str()))
    }

    // Pulls all that is new. Whether its editor then has the version and the text that a read was told.
    fn catches_up(&mut self, desk: &mut RoomDesk, read: &Reply) -> Result<bool, Fail> {
        let mut all = true;
        for _ in 0..100 {
            all &= self.pull(desk, 64)?;
            self.receive_last()?;
        }
        all &= self.is_in_step(desk)?;
        Ok(all && self.has(read))
    }

    // Whether its editor has the version and the text that a read was told.
    fn has(&self, read: &Reply) -> bool {
        match read {
            Reply::Text { v, x } => self.version() == *v && shows(&self.editor, x.as_str()),
            _ => false,
        }
    }
}

// 100 steps of clients in turn. Whether the room answered as it has to, and the client was in step after each.
fn act_in_turn(
    alloc: Global,
    desk: &mut RoomDesk,
    clients: &mut [Client],
    numbers: &mut Numbers,
) -> Result<bool, Fail> {
    let mut all = true;
    for _ in 0..100 {
        let at = numbers.below(clients.len());
        if let Some(client) = clients.get_mut(at) {
            all &= client.act(alloc, desk, numbers)?;
            all &= client.is_in_step(desk)?;
        }
    }
    Ok(all)
}

// The last client joins.
fn join_last(desk: &mut RoomDesk, clients: &mut [Client]) -> Result<(), Fail> {
    if let Some(client) = clients.last_mut() {
        client.ask(desk, Call::Join { units: false })?;
        client.receive_last()?;
    }
    Ok(())
}

// One client more joins, again and again, and acts with those before it. Whether all goes as it has to.
fn join_and_act(
    alloc: Global,
    desk: &mut RoomDesk,
    clients: &mut Vec<Client>,
    numbers: &mut Numbers,
) -> Result<bool, Fail> {
    let mut all = true;
    for session in 1..=SESSIONS {
        clients.push(Client::new(alloc, session))?;
        join_last(desk, clients)?;
        all &= act_in_turn(alloc, desk, clients, numbers)?;
    }
    Ok(all)
}

// Whether the log is long, and each client comes to have what a read was told.
fn catch_up(desk: &mut RoomDesk, clients: &mut [Client], read: &Reply) -> Result<bool, Fail> {
    let mut all = desk.room().replica().version() > 500;
    for client in clients.iter_mut() {
        all &= client.catches_up(desk, read)?;
    }
    Ok(all)
}

// The same, with a read.
fn catch_up_with_a_read(desk: &mut RoomDesk, clients: &mut [Client]) -> Result<bool, Fail> {
    let read = desk.call(Call::Read)?;
    let caught_up = catch_up(desk, clients, &read);
    drop(read);
    caught_up
}

// Whether all goes as it has to, up to the end.
fn all_follow(alloc: Global, desk: &mut RoomDesk, clients: &mut Vec<Client>) -> Result<bool, Fail> {
    let in_step = join_and_act(alloc, desk, clients, &mut Numbers { last: 1 })?;
    Ok(in_step && catch_up_with_a_read(desk, clients)?)
}

fn all_follow_a_room(alloc: Global) -> Result<bool, Fail> {
    let mut desk = RoomDesk::new(empty_room(alloc)?);
    all_follow(alloc, &mut desk, &mut Vec::new(alloc))
}

#[test]
fn editors_converge(rt: HostRuntime) -> Result<(), Fail> {
    assert!(rt; all_follow_a_room(rt.alloc())?);
    Ok(())
}
