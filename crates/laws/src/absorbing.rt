// Laws of absorbing, on values: question 12 by tests that read only what is not yet joined.
