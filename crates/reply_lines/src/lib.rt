//! The line that answers a reply to a start tag or to attributes, or to an end tag.
#![tactic(auto)]

ghost use Rattle.text.specs.Places.{IsLineEnd, IsBufferPlace};
ghost use Rattle.text.specs.Text.{Wrote};
ghost use Rattle.accepting.specs.Accepting.{reply_of};
ghost use Rattle.ends.specs.Ends.{popped_of};
ghost use Rattle.reply_lines.specs.ReplyLines.{reply_line, popped_line};

use accepting::Answer;
use lines::{put_attrs, put_pop, put_refused};
use match_lines::put_match;
use refusals::Refusal;

#[tactic(auto, unfolding(crate::specs::ReplyLines::answer_line))]
pub fn put_reply(out: &mut [u8], at: usize, reply: Result<Answer, Refusal>) -> usize
    requires { IsBufferPlace at }
    ensures wrote { Wrote out.old at (reply_line (reply_of reply)) result out.new }
    ensures upper_bound { IsLineEnd at result }
{
    match reply {
        Ok(Answer::Match { ids, content }) => put_match(out, at, &ids, content),
        Ok(Answer::Attributes) => put_attrs(out, at),
        Err(refusal) => put_refused(out, at, refusal.number()),
    }
}

#[tactic(auto, unfolding(crate::specs::ReplyLines::popped_line))]
pub fn put_popped(out: &mut [u8], at: usize, popped: Result<usize, Refusal>) -> usize
    requires { IsBufferPlace at }
    ensures wrote { Wrote out.old at (popped_line (popped_of popped)) result out.new }
    ensures upper_bound { IsLineEnd at result }
{
    match popped {
        Ok(count) => put_pop(out, at, count),
        Err(refused) => put_refused(out, at, refused.number()),
    }
}
