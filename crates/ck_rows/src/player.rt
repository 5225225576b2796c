use crate::calls::{call_of, length, number};
use crate::stop::Stop;
use ck_model::{CHECKPOINT_LIMIT, Limits};
use ck_plain::{Answer, Plain, is_plain_call};
use ck_report::put_reply;
use std::alloc::{AllocError, Global};

/// The moment of every call, until a line sets another.
const MOMENT: u64 = 100;

/// More records than a volume has.
const TOO_MANY: u32 = 1 << 31;

/// The world of the row that is played, and the moment of its next call.
#[derive(Drop)]
pub struct Player {
    plain: Plain,
    moment: u64,
    alloc: Global,
}

fn words_of(alloc: Global, line: &str) -> Result<Vec<&str>, AllocError> {
    let mut words = Vec::new(alloc);
    for word in line.split_whitespace() {
        words.push(word)?;
    }
    Ok(words)
}

/// An empty world with so many data blocks and records, whose next checkpoint has this id.
fn world_of(alloc: Global, blocks: &str, records: &str, id: &str) -> Result<Plain, Stop> {
    match (length(blocks), length(records), length(id)) {
        (Some(blocks), Some(records), Some(id)) if records < TOO_MANY => {
            let limits = Limits {
                blocks,
                records,
                checkpoints: CHECKPOINT_LIMIT,
            };
            let mut plain = Plain::new(alloc, limits)?;
            plain.next.id = id;
            Ok(plain)
        }
        _ => Err(Stop::BadLine),
    }
}

fn put_answer(told: &mut Vec<u8>, answer: &Answer) -> Result<(), Stop> {
    told.extend_from_slice(b" = ")?;
    put_reply(told, &answer.reply)?;
    if answer.given > 0 {
        let given = answer.given;
        let text = format!(in *told.allocator(); " given {given}")?;
        told.extend_from_slice(text.as_bytes())?;
    }
    Ok(())
}

impl Player {
    pub fn new(alloc: Global) -> Result<Player, Stop> {
        let plain = world_of(alloc, "64", "256", "1")?;
        Ok(Player {
            plain,
            moment: MOMENT,
            alloc,
        })
    }

    fn call(&mut self, actor: &str, words: &[&str]) -> Result<Answer, Stop> {
        match (length(actor), call_of(self.alloc, words)?) {
            (Some(actor), Some(call)) if is_plain_call(&call) => {
                Ok(self.plain.step(actor, self.moment, &call)?)
            }
            _ => Err(Stop::BadLine),
        }
    }

    /// Plays a line, and gives it back with what the call was told.
    pub fn play(&mut self, line: &str) -> Result<Vec<u8>, Stop> {
        let mut told = Vec::from_slice(self.alloc, line.as_bytes())?;
        let words = words_of(self.alloc, line)?;
        match words.as_slice() {
            [] => {}
            ["row", _, blocks, records, id] => {
                self.plain = world_of(self.alloc, blocks, records, id)?;
                self.moment = MOMENT;
            }
            ["at", moment] => {
                self.moment = number(moment).ok_or(Stop::BadLine)?;
            }
            [actor, call @ ..] => {
                let answer = self.call(actor, call)?;
                put_answer(&mut told, &answer)?;
            }
        }
        told.extend_from_slice(b"\n")?;
        Ok(told)
    }
}
