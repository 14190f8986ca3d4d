// Labels as multisets of actions: for each label the lowest one that has the same multiset. Each label gets a mark,
// which labels of one multiset share: only where marks are equal the actions are counted.
#![tactic(auto)]

ghost use Rattle.std.specs.Prelude.{◌≡◌, true, ◌↔◌, ◌+◌, ◌%◌, ◌^◌, ◌≤◌, ◌<◌, eqb, length};
ghost use Rattle.std.specs.List.{sum_by};
ghost use Rattle.rules.specs.Lists.{occurrences};
ghost use Rattle.rules.specs.Labels.{label_count, action_count, label_at, same_label, multiset};
ghost use Rattle.tables.specs.Good.{GoodLabels};
ghost use Rattle.labels.specs.Classes.{Classes};
ghost use Rattle.labels.specs.Stretches.{Starts, Stretch, SameOccurrences, ActionsOf};
ghost use Rattle.labels.specs.Marks.{weight, Marked, StartsKnown, MarksTell};

use compiled::LABELS;

// Where each label starts in the list of the labels' actions.
type LabelStarts = [u32; LABELS];

// How often a word is among these: a sum in 32 bits, the size of a word, of which the compiler makes four comparisons
// at once.
// Kept (speed): of `filter(..).count()` it makes one at a time: among 4,096 words that takes 7 times as long.
fn times_among(words: &[u32], one: u32) -> u32
    requires { length words.now ≤ 16_384 }
    ensures { result ≡ occurrences eqb one words.now }
{
    words.iter().map(|other| u32::from(*other == one)).sum()
}

// Are these the same multiset? If both are equally many, it is enough to count those of the first.
fn same_multiset(own: &[u32], other: &[u32]) -> bool
    requires { (length own.now ≤ 16_384) × (length other.now ≤ 16_384) }
    ensures { (result ≡ true) ↔ SameOccurrences own.now other.now }
{
    own.len() == other.len()
        && own
            .iter()
            .all(|one| times_among(own, *one) == times_among(other, *one))
}

// The words of the labels, which have passed the checks, lent.
// Kept (rule): words, in which lengths and actions stand one behind the other: document 01 lays them out so.
#[derive(Clone, Copy)]
struct Labels<'a> {
    words: &'a [u32],
    ghost good: { GoodLabels words.now },
}

impl<'a> Labels<'a> {
    // How many labels there are.
    fn count(self) -> u32
        ensures { result ≡ label_count self.entry.words.now }
    {
        self.words[0]
    }

    // How many actions they have in all.
    fn action_count(self) -> usize
        ensures { result ≡ action_count self.entry.words.now }
    {
        self.words[1] as usize
    }

    // The label at a place.
    fn label_at(self, place: usize) -> u32
        requires { place < action_count self.words.now }
        ensures { result ≡ label_at self.entry.words.now place }
    {
        self.words[2 + place]
    }

    // The place past the actions of a label, which begin at `from`.
    fn stretch_end(self, from: usize, label: u32) -> usize
        requires { Starts self.words.now label from }
        ensures { Stretch self.entry.words.now label from result }
    {
        let count = self.action_count();
        (from..count)
            .find(|place| self.label_at(*place) != label)
            .unwrap_or(count)
    }

    // The actions of a label, which begin at `from`.
    fn actions_from(self, from: usize, label: u32) -> &'a [u32]
        requires { Starts self.words.now label from }
        ensures { ActionsOf self.entry.words.now label result.now
            × Starts self.entry.words.now (label + 1) (from + length result.now) }
    {
        let first = 2 + self.action_count();
        let end = self.stretch_end(from, label);
        &self.words[first + from..first + end]
    }
}

// ---- marks

// What an action adds to a mark.
fn weight_of(action: u32) -> u64
    ensures { result ≡ weight action }
{
    // Kept (no plainer): a cast that widens; `u64::from` would say the same.
    let stirred = ((action as u64) * 2654435761 + 1013904223) % 4294967296;
    stirred * stirred / 4294967296
}

// The mark of a label that has these actions.
fn mark_of(actions: &[u32]) -> u32
    requires { length actions.now ≤ 16_384 }
    ensures { result ≡ sum_by weight actions.now % 2 ^ 32 }
{
    let sum: u64 = actions.iter().map(|action| weight_of(*action)).sum();
    (sum % 4294967296) as u32
}

// Writes where each label starts, and its mark.
// Kept (rule): two arrays side by side. The marks stand in the table that becomes that of the multisets: memory is
// fixed, and an array of both would be 16 KB more of the stack.
fn mark_labels(labels: Labels<'_>, starts: &mut LabelStarts, marks: &mut [u32])
    requires { label_count labels.words.now ≤ length marks.old }
    ensures { Marked labels.entry.words.now starts.new marks.new (label_count labels.entry.words.now) }
{
    let mut from: usize = 0;
    for label in 0..labels.count() {
        // Kept (no plainer): two tables are written at one label, and the next label begins where this one ends.
        let actions = labels.actions_from(from, label);
        starts[label as usize] = from as u32;
        marks[label as usize] = mark_of(actions);
        from += actions.len();
    }
}

// ---- classes

// The labels up to `label`, with where each starts and its mark.
#[derive(Clone, Copy)]
struct MarkedLabels<'a> {
    labels: Labels<'a>,
    starts: &'a LabelStarts,
    marks: &'a [u32],
    label: u32,
    ghost in_bounds: { (label < label_count labels.words.now) × (label < length marks.now) },
    ghost starts_known: { StartsKnown labels.words.now starts.now label },
    ghost marks_tell: { MarksTell labels.words.now marks.now label },
}

impl<'a> MarkedLabels<'a> {
    // The actions of the label or of a lower one.
    fn actions_of(self, lower: u32) -> &'a [u32]
        requires { lower ≤ self.label }
        ensures { ActionsOf self.entry.labels.words.now lower result.now }
    {
        let from = self.starts[lower as usize] as usize;
        self.labels.actions_from(from, lower)
    }

    // Is a lower label the same multiset as the label, whose actions are given?
    fn same_as(self, lower: u32, actions: &[u32]) -> bool
        requires lower_label { lower < self.label }
        requires own { ActionsOf self.labels.words.now self.label actions.now }
        ensures { result ≡ same_label self.entry.labels.words.now lower self.entry.label }
    {
        self.marks[lower as usize] == self.marks[self.label as usize]
            && same_multiset(self.actions_of(lower), actions)
    }

    // The lowest label with the label's multiset.
    fn lowest_same(self) -> u32
        ensures { result ≡ multiset self.entry.labels.words.now self.entry.label }
    {
        let actions = self.actions_of(self.label);
        (0..self.label)
            .find(|lower| self.same_as(*lower, actions))
            .unwrap_or(self.label)
    }

    // The label's multiset: the label itself if none before it has its mark.
    fn class(self) -> u32
        ensures { result ≡ multiset self.entry.labels.words.now self.entry.label }
    {
        let at = self.label as usize;
        let marked_before = self.marks[..at].contains(&self.marks[at]);
        if !marked_before {
            return self.label;
        }
        self.lowest_same()
    }
}

// Turns the table of marks into that of multisets, from the last label to the first: each needs the marks of the labels
// before it.
fn classes_of_marks(labels: Labels<'_>, starts: &LabelStarts, classes: &mut [u32])
    requires labels_in_bounds { label_count labels.words.now ≤ length classes.old }
    requires marked { Marked labels.words.now starts.now classes.old (label_count labels.words.now) }
    ensures { Classes labels.entry.words.now classes.new }
{
    for label in (0..labels.count()).rev() {
        let marked = MarkedLabels {
            labels,
            starts,
            marks: classes,
            label,
        };
        let class = marked.class();
        classes[label as usize] = class;
    }
}

// Writes the multiset of each label into the table.
// Kept (rule): that the table has room is a clause here and in the two functions that fill it: a table of LABELS words,
// which would need none, asks more of callers.
pub fn label_classes(labels: &[u32], classes: &mut [u32])
    requires good_labels { GoodLabels labels.now }
    requires labels_in_bounds { label_count labels.now ≤ length classes.old }
    ensures { Classes labels.now classes.new }
{
    let labels = Labels { words: labels };
    let mut starts = [0u32; LABELS];
    mark_labels(labels, &mut starts, classes);
    classes_of_marks(labels, &starts, classes);
}
