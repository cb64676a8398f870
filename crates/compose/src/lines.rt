// The lines of the text, a function for each kind.
use crate::book::{Book, Object, add};
use crate::complaint::{Complaint, Fault};
use crate::gift::{Gift, Place, Source};
use crate::line::Line;
use rules::{BADGE_MOST, BELLS, FRAMES_MOST, Kind, MAILBOXES, SLOTS};
use std::iter;
use words::{Lines, Words};

impl<'a> Book<'a> {
    // `frames NUMBER`
    fn read_frames(&mut self, line: &mut Line<'a>) -> Result<(), Complaint<'a>> {
        if self.frames.is_some() {
            return Err(line.wrong_line(Fault::SecondFrames));
        }
        self.frames = Some(line.number(1, FRAMES_MOST)?);
        Ok(())
    }

    // `domain NAME`
    fn read_domain(&mut self, line: &mut Line<'a>) -> Result<(), Complaint<'a>> {
        let name = line.name()?;
        if self.domain(name).is_some() {
            return Err(line.wrong(name, Fault::SameDomain));
        }
        add(&mut self.domains, name).ok_or(line.wrong(name, Fault::ManyDomains))
    }

    // The domain that a word of the line names.
    fn wanted_domain(&self, line: &Line<'a>, word: &'a [u8]) -> Result<u8, Complaint<'a>> {
        self.domain(word).ok_or(line.wrong(word, Fault::NoDomain))
    }

    // `turns DOMAIN ..`
    fn read_turns(&mut self, line: &mut Line<'a>) -> Result<(), Complaint<'a>> {
        for word in iter::once(line.word()?).chain(line.rest()) {
            let domain = self.wanted_domain(line, word)?;
            add(&mut self.turns, domain).ok_or(line.wrong(word, Fault::ManyTurns))?;
        }
        Ok(())
    }

    // The greatest number of an object of a kind. A frame's is known once the number of frames is.
    fn last_object(&self, line: &Line<'a>, kind: Kind) -> Result<u32, Complaint<'a>> {
        let count = match kind {
            Kind::Frame => self.frames.ok_or(line.wrong_line(Fault::FramesBefore))?,
            Kind::Mailbox => MAILBOXES,
            Kind::Bell => BELLS,
        };
        Ok(count.saturating_sub(1))
    }

    // `frame NAME NUMBER`, `mailbox NAME NUMBER`, `bell NAME NUMBER`
    fn read_object(&mut self, line: &mut Line<'a>, kind: Kind) -> Result<(), Complaint<'a>> {
        let last = self.last_object(line, kind)?;
        let name = line.name()?;
        if self.object(name).is_some() {
            return Err(line.wrong(name, Fault::SameObject));
        }
        let number = line.number(0, last)?;
        let object = Object { name, kind, number };
        add(&mut self.objects, object).ok_or(line.wrong(name, Fault::ManyObjects))
    }

    // `DOMAIN SLOT`
    fn read_place(&self, line: &mut Line<'a>) -> Result<Place, Complaint<'a>> {
        let word = line.word()?;
        let domain = self.wanted_domain(line, word)?;
        let slot = line.number(0, SLOTS - 1)? as u8;
        Ok(Place { domain, slot })
    }

    // `from DOMAIN SLOT`, or nothing.
    fn read_source(&self, line: &mut Line<'a>) -> Result<Option<Source<'a>>, Complaint<'a>> {
        if !line.words.pass(b"from") {
            return Ok(None);
        }
        let before = line.words;
        let place = self.read_place(line)?;
        Ok(Some(Source {
            place,
            named: line.words.since(before),
        }))
    }

    // `give DOMAIN SLOT OBJECT RIGHTS [badge NUMBER] [from DOMAIN SLOT]`
    fn read_gift(&mut self, line: &mut Line<'a>) -> Result<(), Complaint<'a>> {
        let before = line.words;
        let place = self.read_place(line)?;
        if self.given(place).is_some() {
            return Err(line.wrong(line.words.since(before), Fault::SameSlot));
        }
        let name = line.word()?;
        let object = self.object(name).ok_or(line.wrong(name, Fault::NoObject))?;
        let rights = line.rights(object.kind)?;
        let badge = read_badge(line)?;
        let source = self.read_source(line)?;
        self.give(Gift {
            line: line.number,
            place,
            kind: object.kind,
            rights,
            object: object.number,
            badge,
            source,
        });
        Ok(())
    }

    // A line, but for words that are too many.
    fn read_line(&mut self, line: &mut Line<'a>) -> Result<(), Complaint<'a>> {
        match line.first {
            b"frames" => self.read_frames(line),
            b"domain" => self.read_domain(line),
            b"turns" => self.read_turns(line),
            b"frame" => self.read_object(line, Kind::Frame),
            b"mailbox" => self.read_object(line, Kind::Mailbox),
            b"bell" => self.read_object(line, Kind::Bell),
            b"give" => self.read_gift(line),
            _ => Err(line.wrong_line(Fault::UnknownLine)),
        }
    }

    // What a text says besides. The book stays where it is: handed up in a result it would stand in memory more than once.
    pub fn read(&mut self, text: &'a [u8]) -> Result<(), Complaint<'a>> {
        for (before, line) in Lines::new(text).enumerate() {
            let mut words = Words::new(line);
            if let Some(first) = words.next() {
                let mut line = Line {
                    number: before + 1,
                    first,
                    words,
                };
                self.read_line(&mut line)?;
                line.end()?;
            }
        }
        Ok(())
    }
}

// `badge NUMBER`, or nothing. 0 is no badge.
fn read_badge<'a>(line: &mut Line<'a>) -> Result<Option<u32>, Complaint<'a>> {
    if !line.words.pass(b"badge") {
        return Ok(None);
    }
    let badge = line.number(0, BADGE_MOST)?;
    Ok(Some(badge).filter(|b| *b != 0))
}
