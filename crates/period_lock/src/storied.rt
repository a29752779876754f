// Values that stand for a list of entries, and the events that change them.
ghost use Rattle.std.specs.Prelude.{◌≡◌, ◌+◌, ◌++◌, List, ℕ, length, Option, option_to_list};

/// A value that stands for a start and the list of the entries that were added since.
pub trait Storied {
    /// What a value begins with. Contracts alone see it.
    type Start;

    /// What is added. Contracts alone see it.
    type Entry;

    ghost stands: { Self → Self.Start → List Self.Entry → Type 0 };

    /// The start of a value to which nothing was added.
    ghost start_of: { Self → Self.Start };

    /// How many entries were counted before the start.
    ghost front_of: { Self.Start → ℕ };

    /// The count of all entries.
    fn front(&self) -> u64
        ensures { (start : Self.Start) (story : List Self.Entry) → stands self.now start story → result ≡ front_of start + length story };
}

/// What is done to such a value in one turn. It adds one entry, or leaves the list.
pub trait Event<T: Storied> {
    type Reply;

    /// The event before, the start, the list, the reply and the event after, where the reply is right.
    ghost answers: { Self → T.Start → List T.Entry → Self.Reply → Self → Type 0 };

    /// The entry that is added, if there is one, by the event before, the reply and the event after.
    ghost entry_of: { Self → Self.Reply → Self → Option T.Entry };

    /// Replies, and adds the entry to the list that the value stands for.
    fn apply(&mut self, state: &mut T) -> Self::Reply
        ensures answer { (start : T.Start) (story : List T.Entry) → T.stands state.old start story → answers self.old start story result self.new }
        ensures story { (start : T.Start) (story : List T.Entry) → T.stands state.old start story → T.stands state.new start (story ++ option_to_list (entry_of self.old result self.new)) };
}
