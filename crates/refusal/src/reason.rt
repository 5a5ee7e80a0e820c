// Why something was refused: one case for each number, named by its layer, with the place where it names one.
#[derive(Clone, Copy, Debug)]
pub enum Refusal {
    // 11: a line is not key, `=`, value and newline (the line, from 1)
    TextLine(usize),
    // 12: a line may not come next, or the text ends early or goes on (the line)
    TextOrder(usize),
    // 13: a number that is out of its range, or a state that is missing (the line)
    TextValue(usize),
    // 14: more than the limits allow or the lent lists hold (the line)
    TextRoom(usize),
    // 15: the weights of an option do not add up to the scale (the line after it)
    TextSum(usize),
    // 21: a list is too short, too long or of odd length (the list)
    TableLength(usize),
    // 22: the starts in a list do not begin at 0, rise and end where they should (the list)
    TableStarts(usize),
    // 23: a place that does not exist, or a weight above the scale (the move)
    TableMove(usize),
    // 24: the weights of an option do not add up to the scale (the option)
    TableSum(usize),
    // 31: no tries, or too many
    LadderTries,
    // 32: the chances of an option add up to more than the scale (the option)
    LadderChances(usize),
    // 41: the vector (0), the marks (1) or the tally (2) has the wrong length
    VectorLength(usize),
    // 42: an entry is above its limit (the first such index)
    VectorEntry(usize),
    // 43: the inequality fails (the first such option; of a hope or a risk, the first such state)
    VectorInequality(usize),
    // 44: a depth that is too great (the depth), or a state with too many moves (the state)
    LookAheadReach(usize),
    // 45: a chance above certainty
    RegisterChance,
    // 46: a list of marks is too long (4096), or a byte is neither 0 nor 1 (its index)
    PartMarks(usize),
    // 51: the register has taken as many vectors as it can count
    RegisterFull,
}
