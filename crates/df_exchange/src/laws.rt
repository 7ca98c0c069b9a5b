//! The laws of a round of hops, each the contract of a function that does nothing.

ghost use Rattle.df_exchange.specs.Exchanges.{AnswersAreOfHops, ExchangesBegin, ExchangesGo, ExchangesGoRound, HearingsBegin, NextPartsAreDue, NextPlacesAreIdle};

/// A round begins with room everywhere; what a shard is asked next is due there, and there is room for its message; then
/// messages go and answers come.
pub fn exchanges_go_on()
    ensures begun { ExchangesBegin }
    ensures due { NextPartsAreDue }
    ensures room { NextPlacesAreIdle }
    ensures gone { ExchangesGo }
{}

/// Once all have answered each answer is heard, and then the call is one round further.
pub fn hearings_go_on()
    ensures begun { HearingsBegin }
    ensures hops { AnswersAreOfHops }
    ensures round { ExchangesGoRound }
{}
