//! How many of the messages that come are still skipped, and how many are chosen then.

ghost use Rattle.std.specs.Prelude.{◌≡◌, ◌==◌, ◌&&◌, if◌then◌else◌};
ghost use Rattle.std.specs.Option.{is_none};
ghost use Rattle.rb_machine.specs.Pending.{quota_of, chooses, after_one};

use rb_directive::MailChoice;
use std::marker::Model;

#[derive(Drop)]
pub(crate) struct Quota {
    skip: u64,
    // All if there is no number.
    count: Option<u64>,
}

impl Model for Quota {
    ghost use Rattle.rb_machine.specs.Pending as plain;

    ghost Value = { plain.Quota };

    ghost view = { λ q. record { skip = q.skip; count = q.count } };
}

impl Quota {
    /// The numbers of a choice, before any message comes.
    pub(crate) fn of(choice: &MailChoice) -> Quota
        ensures { result ≡ quota_of choice.now }
    {
        Quota {
            skip: choice.skip,
            count: choice.count,
        }
    }

    /// Whether each message that is meant is chosen.
    pub(crate) fn takes_all(&self) -> bool
        ensures { result ≡ (self.now.skip == 0 && is_none self.now.count) }
    {
        self.skip == 0 && self.count.is_none()
    }

    /// Whether the message that comes next is chosen. Only one that is meant counts.
    pub(crate) fn takes(&mut self, is_meant: bool) -> bool
        ensures takes { result ≡ (is_meant && chooses self.old) }
        ensures left { self.new ≡ (if is_meant then after_one self.old else self.old) }
    {
        if !is_meant {
            return false;
        }
        if self.skip > 0 {
            self.skip -= 1;
            return false;
        }
        match self.count {
            None => true,
            Some(0) => false,
            Some(left) => {
                self.count = Some(left - 1);
                true
            }
        }
    }
}
