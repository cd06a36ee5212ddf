// Each function here states one theorem by its contract, and does nothing.
ghost use Rattle.questions.specs.Readings.{QuestionRead};
ghost use Rattle.questions.specs.Values.{HangsOnStanding, LiesWithinAll};

// Read by its operators, a question that is not refused has its value, and no other.
pub fn questions_read()
    ensures { QuestionRead }
{}

// What a name means that does not stand makes no difference to an accepted question.
pub fn value_hangs_on_standing()
    ensures { HangsOnStanding }
{}

// An accepted question has no kind that all has not.
pub fn value_lies_within_all()
    ensures { LiesWithinAll }
{}
