/// The rules of labels, by which a subject of a level may read and write.
#[derive(Clone, Copy, Debug, PartialEq, Eq)]
pub enum Rule {
    /// To read, the subject dominates the label.
    M1,
    /// To write, the subject is at the label.
    M2,
    /// To change a directory's names, the subject is at its label.
    M3,
    /// A child's label dominates its directory's.
    M4,
    /// To raise a label, the subject is at the old one and at that of each parent, there is a parent, and
    /// the new one dominates the old.
    M5,
    /// To take out a node, the subject is at its label.
    M6,
    /// To deny others an open, the subject is at the label.
    M7,
    /// To name a node, the subject dominates its home.
    M8,
    /// An identifier is of the subject's level.
    M9,
}
