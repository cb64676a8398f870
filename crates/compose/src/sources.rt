// What can only be judged at the end of the text: whether there is what an image must have, and whether the sources are as document 01,
// section 4, says. The places are gone through in rising order.
use crate::book::{Book, PLACES};
use crate::complaint::{Complaint, Fault};
use crate::gift::{Gift, Place, Source};
use std::iter;

impl<'a> Book<'a> {
    // Frames, a domain and turns.
    fn judge_sizes(&self) -> Result<(), Fault> {
        if self.frames.is_none() {
            return Err(Fault::NoLineFrames);
        }
        if self.domains.iter().all(|domain| domain.is_none()) {
            return Err(Fault::NoLineDomain);
        }
        if self.turns.iter().all(|turn| turn.is_none()) {
            return Err(Fault::NoLineTurns);
        }
        Ok(())
    }

    // The place from which another one comes.
    fn source(&self, place: Place) -> Option<Place> {
        Some(self.given(place)?.source?.place)
    }

    // Whether following sources from a place comes back to it.
    fn comes_back(&self, place: Place) -> bool {
        iter::successors(self.source(place), |p| self.source(*p))
            .take(PLACES)
            .any(|p| p == place)
    }

    // The source is given by a line, for the same object, with these rights and with its badge if it has one; and following the sources ends.
    fn judge_source(&self, gift: &Gift<'a>, source: Place) -> Result<(), Fault> {
        let from = self.given(source).ok_or(Fault::NoSource)?;
        if gift.kind != from.kind || gift.object != from.object {
            return Err(Fault::OtherObject);
        }
        if !from.rights.have(gift.rights) {
            return Err(Fault::MoreRights);
        }
        if from.badge.is_some() && gift.badge != from.badge {
            return Err(Fault::OtherBadge);
        }
        if self.comes_back(gift.place) {
            return Err(Fault::EndlessSource);
        }
        Ok(())
    }

    // The sources of all places.
    fn judge_sources(&self) -> Result<(), Complaint<'a>> {
        for gift in self.gifts.iter().flatten() {
            if let Some(Source { place, named }) = gift.source {
                self.judge_source(gift, place).map_err(|fault| Complaint {
                    line: Some(gift.line),
                    word: Some(named),
                    fault,
                })?;
            }
        }
        Ok(())
    }

    // All that is judged at the end.
    pub fn judge(&self) -> Result<(), Complaint<'a>> {
        self.judge_sizes()?;
        self.judge_sources()
    }
}
