//! Servers that hand over operations: requests `put` and `ops`.
use crate::dice::Dice;
use crate::log_text::LogText;
use crate::texts::push_number;
use std::alloc::{AllocError, Global};

// The most bytes of a request's items, and the most operations.
const MOST_BYTES: usize = 60_000;

const MOST: u32 = 64;

/// In which order operations are handed over.
#[derive(Clone, Copy, PartialEq, Eq)]
pub(crate) enum Order {
    /// In that of the log.
    Log,
    /// Of so many items after one another the last first.
    Reversed(u32),
    /// Of so many items after one another each twice, at random.
    Shuffled(u32),
}

/// Lines of requests.
#[derive(Drop)]
pub(crate) struct Requests {
    text: String,
    // Of the `put` that isn't yet ended: its operations, and where it begins.
    count: u32,
    begin: usize,
}

impl Requests {
    /// No lines.
    pub(crate) fn new(alloc: Global) -> Requests {
        Requests {
            text: String::new(alloc),
            count: 0,
            begin: 0,
        }
    }

    /// The lines.
    pub(crate) fn as_bytes(&self) -> &[u8] {
        self.text.as_str().as_bytes()
    }

    fn len(&self) -> usize {
        self.text.as_str().len()
    }

    // Ends the `put`, if one was begun.
    fn end(&mut self) -> Result<(), AllocError> {
        if self.count > 0 {
            self.text.push_str("]}\n")?;
        }
        self.count = 0;
        Ok(())
    }

    // Hands over an item, in the same `put` where it has room.
    fn hand(&mut self, item: &str, count: u32) -> Result<(), AllocError> {
        let bytes = self.len().saturating_sub(self.begin);
        if self.count.saturating_add(count) > MOST
            || bytes.saturating_add(item.len()) > MOST_BYTES
        {
            self.end()?;
        }
        if self.count == 0 {
            self.begin = self.len();
            self.text.push_str("{\"t\":\"put\",\"ops\":[")?;
        } else {
            self.text.push_str(",")?;
        }
        self.count = self.count.saturating_add(count);
        self.text.push_str(item)
    }

    /// Hands over all items of a log.
    pub(crate) fn put_all(
        &mut self,
        alloc: Global,
        log: &LogText,
        order: Order,
        dice: &mut Dice,
    ) -> Result<(), AllocError> {
        let window = match order {
            Order::Log => 1,
            Order::Reversed(items) | Order::Shuffled(items) => items.max(1) as usize,
        };
        let mut begin = 0usize;
        for _ in 0..log.len() {
            if begin >= log.len() {
                break;
            }
            let end = begin.saturating_add(window).min(log.len());
            let places = places(alloc, begin, end, order, dice)?;
            for item in places.as_slice() {
                self.hand(log.item(*item), log.count(*item))?;
            }
            begin = end;
        }
        self.end()
    }

    /// A new server reads all of so many operations, so many at a time.
    pub(crate) fn read_all(&mut self, operations: u32, at_once: u32) -> Result<(), AllocError> {
        let at_once = at_once.max(1);
        for part in 0..operations.div_ceil(at_once) {
            self.text.push_str("{\"t\":\"ops\",\"after\":")?;
            push_number(&mut self.text, part.saturating_mul(at_once))?;
            self.text.push_str(",\"max\":")?;
            push_number(&mut self.text, at_once)?;
            self.text.push_str("}\n")?;
        }
        Ok(())
    }
}

// The items from one place to another, as they are handed over.
fn places(
    alloc: Global,
    begin: usize,
    end: usize,
    order: Order,
    dice: &mut Dice,
) -> Result<Vec<usize>, AllocError> {
    let mut places = Vec::new(alloc);
    for place in begin..end {
        places.push(place)?;
    }
    match order {
        Order::Log => {}
        Order::Reversed(_) => places.as_mut_slice().reverse(),
        Order::Shuffled(_) => {
            for place in begin..end {
                places.push(place)?;
            }
            shuffle(places.as_mut_slice(), dice);
        }
    }
    Ok(places)
}

fn shuffle(places: &mut [usize], dice: &mut Dice) {
    for place in 0..places.len() {
        let rest = u32::try_from(places.len() - place).unwrap_or(0);
        let other = place.saturating_add(dice.below(rest) as usize);
        if other < places.len() {
            places.swap(place, other);
        }
    }
}
