// What an identity's labels are, apart from how they are read.
ghost use Rattle.record_reading.specs.Laws.{FindsFirstUnreadable, ReadsLabelTexts, RefusesByPlace};

/// An identity is read exactly where its bytes are the texts of labels, one behind the other, and as
/// these labels.
pub fn reads_label_texts()
    ensures { ReadsLabelTexts }
{}

/// The fault is `Label` with the place behind labels that are read where something stands that
/// begins with no label, and there is no other fault.
pub fn finds_first_unreadable_label()
    ensures place { FindsFirstUnreadable }
    ensures alone { RefusesByPlace }
{}
