// A thing for each object that there may be.
use crate::words::Object;
use rules::{BELLS, FRAMES_MOST, Kind, MAILBOXES};

// The kinds, in the order of their numbers.
pub const KINDS: [Kind; 3] = [Kind::Frame, Kind::Mailbox, Kind::Bell];

// Things by the kinds of their objects, and by the objects' numbers.
#[derive(Drop)]
pub struct Objects<T> {
    frames: [T; FRAMES_MOST as usize],
    mailboxes: [T; MAILBOXES as usize],
    bells: [T; BELLS as usize],
}

impl<T: Copy> Objects<T> {
    // The same for each object.
    pub fn new(thing: T) -> Self {
        Objects {
            frames: [thing; FRAMES_MOST as usize],
            mailboxes: [thing; MAILBOXES as usize],
            bells: [thing; BELLS as usize],
        }
    }

    // Those of a kind.
    pub fn of(&self, kind: Kind) -> &[T] {
        match kind {
            Kind::Frame => &self.frames,
            Kind::Mailbox => &self.mailboxes,
            Kind::Bell => &self.bells,
        }
    }

    // That of an object, to change it, if there is the object. As slices the arrays are proved for things of any type.
    pub fn get_mut(&mut self, object: Object) -> Option<&mut T> {
        let things = match object.kind {
            Kind::Frame => self.frames.as_mut_slice(),
            Kind::Mailbox => self.mailboxes.as_mut_slice(),
            Kind::Bell => self.bells.as_mut_slice(),
        };
        things.get_mut(object.number)
    }
}
